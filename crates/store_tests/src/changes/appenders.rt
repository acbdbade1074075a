//! What an appender takes. Batches and what is answered to them are in `case_files`.

use crate::changes::rows::set_of;
use head::AppendError;
use labels::{LabelSet, MAX_TIME, MIN_TIME, Sample};
use snapshots::Appender;

/// The code of what is answered to a sample of this label set, which a refusal gives back.
fn code_of(set: &LabelSet, answer: Result<(), (LabelSet, AppendError)>) -> &'static str {
    match answer {
        Ok(()) => "ok",
        Err((labels, refusal)) if labels == *set => refusal.code(),
        Err(_) => "another label set",
    }
}

fn append(appender: &mut Appender, set: &LabelSet, t: i64) -> &'static str {
    match set.try_clone() {
        Ok(labels) => code_of(set, appender.append(labels, Sample::new(t, 1))),
        Err(_) => "no memory",
    }
}

/// Whether each of the samples at these times gets this answer.
fn are_answered(appender: &mut Appender, set: &LabelSet, times: &[i64], want: &str) -> bool {
    for t in times {
        if append(appender, set, *t) != want {
            return false;
        }
    }
    true
}

/// Whether a sample is added at each of the times from 0, which are this many.
fn are_added(appender: &mut Appender, set: &LabelSet, count: i64) -> bool {
    for t in 0..count {
        if append(appender, set, t) != "ok" {
            return false;
        }
    }
    true
}

#[test]
fn an_appender_holds_4096_samples_at_times(rt: HostRuntime) {
    let set = set_of(rt.alloc(), 1).expect(&rt, "it is a label set");
    let mut appender = Appender::new(rt.alloc());
    assert!(rt; appender.is_empty());
    assert!(rt; are_answered(&mut appender, &set, &[MIN_TIME - 1, MAX_TIME + 1], "A2"));
    assert!(rt; are_added(&mut appender, &set, 4_096));
    assert!(rt; are_answered(&mut appender, &set, &[MAX_TIME + 1], "A1"));
    assert!(rt; appender.len() == 4_096);
}
