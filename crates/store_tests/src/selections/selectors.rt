//! Matchers and queries by worked rows, each with what is to be reported of it. Texts of selectors
//! are in `case_files`.

use matchers::{Matcher, MatcherError, Op, Query, Selector, SelectorError};
use std::alloc::Global;

const MIN: i64 = -4_611_686_018_427_387_904;

const MAX: i64 = 4_611_686_018_427_387_903;

fn matcher(alloc: Global, name: &str, op: Op, text: &str) -> Result<Matcher, MatcherError> {
    let name = String::from_str(alloc, name)?;
    let text = String::from_str(alloc, text)?;
    Matcher::new(alloc, name, op, text)
}

#[test]
fn the_example_of_the_first_page(rt: HostRuntime) -> Result<(), SelectorError> {
    let alloc = rt.alloc();
    let matchers = Selector::parse(alloc, "up{job=~\"a|b\"}")?;
    assert_eq!(rt; matchers.len(), 2);
    if let Some(job) = matchers.last() {
        assert_eq!(rt; job.accepts(alloc, "b"), Ok(true));
        assert_eq!(rt; job.accepts(alloc, "ab"), Ok(false));
    }
    Ok(())
}

/// Matchers by name, operator and text, each with the code of its refusal. The name is asked first.
const MATCHERS: &[(&str, Op, &str, &str)] = &[
    ("job", Op::Like, "x|", "ok"),
    ("_9", Op::Equal, "(", "ok"),
    ("job", Op::Like, "(?x)a#", "M2"),
    ("job", Op::NotLike, "a)(b", "M2"),
    ("job", Op::NotLike, "(", "M2"),
    ("", Op::Equal, "", "M1"),
    ("9a", Op::Like, "(", "M1"),
    ("a:b", Op::NotEqual, "", "M1"),
];

fn code(alloc: Global, name: &str, op: Op, text: &str) -> &'static str {
    match matcher(alloc, name, op, text) {
        Ok(_) => "ok",
        Err(refusal) => refusal.code(),
    }
}

#[test]
fn a_matcher_is_refused_by_its_first_fault(rt: HostRuntime) {
    for (name, op, text, want) in MATCHERS {
        let code = code(rt.alloc(), name, *op, text);
        assert!(rt; code == *want, "{name} {text}");
    }
}

/// How many matchers a query has, from when to when it asks, and its code.
type Question = (usize, i64, i64, &'static str);

const QUESTIONS: &[Question] = &[
    (16, MIN, MAX, "ok"),
    (0, 5, 5, "ok"),
    (17, 0, 100, "Q2"),
    (17, 2, 1, "Q1"),
    (1, 2, 1, "Q1"),
    (1, MIN - 1, 0, "Q1"),
    (1, 0, MAX + 1, "Q1"),
];

fn several(alloc: Global, count: usize) -> Option<Vec<Matcher>> {
    let mut matchers = Vec::new(alloc);
    for _ in 0..count {
        let matcher = matcher(alloc, "job", Op::NotEqual, "a").ok()?;
        matchers.push(matcher).ok()?;
    }
    Some(matchers)
}

/// Whether the query gives back what it was made of.
fn gives_back(query: &Query, asked: &Question) -> bool {
    for matcher in query.matchers() {
        if matcher.name() != "job" || matcher.op() != Op::NotEqual || matcher.text() != "a" {
            return false;
        }
    }
    query.matchers().len() == asked.0 && query.from() == asked.1 && query.to() == asked.2
}

fn code_of_query(alloc: Global, asked: &Question) -> &'static str {
    let Some(matchers) = several(alloc, asked.0) else {
        return "no memory";
    };
    match Query::new(matchers, asked.1, asked.2) {
        Ok(query) if gives_back(&query, asked) => "ok",
        Ok(_) => "another query",
        Err(refusal) => refusal.code(),
    }
}

#[test]
fn a_query_is_refused_by_its_first_fault(rt: HostRuntime) {
    for asked in QUESTIONS {
        let code = code_of_query(rt.alloc(), asked);
        assert!(rt;
            code == asked.3,
            "{} from {} to {}",
            asked.0,
            asked.1,
            asked.2
        );
    }
}
