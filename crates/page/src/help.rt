//! What a page shows, and what it does not.

use crate::pen::Pen;
use crate::sayings::{sayings, text_of};
use crate::shown::View;
use crate::words::{classed, open_section, word};
use page_claims::{Checks, checks_of};
use page_text::Tag;

const CERTIFICATE: &str =
    "Every series of a part has a number, its reference. A certificate cuts the numbers, from the \
     first to the end, into as few intervals as possible, each with one reason that holds for all \
     its series. The separators (ticks below the boxes) show that fewer would not do: take any two \
     of them, and no one reason fits all series from the one to the other. So each needs an \
     interval of its own.";

const SPANS: &str =
    "An interval stands for the series whose references are at least from and below until, where \
     the next begins. A match has one series. The open end is what follows the last from of a \
     part, up to 4294967296. A run is put down to the smallest matcher that rejects all of it, and \
     to none only if no matcher does; other matchers may reject some of it too. A number with \
     commas was counted for this page; one without is copied from the reply. A code in a box \
     stands for a character that cannot be seen.";

const UNCHECKED: &str =
    "That each reason is true of the series. The reply has no labels of a series that is not a \
     row. Who holds the blocks can check it, without trust in the store:";

const CHECKED: &str =
    "That each reason is true of the series, for each part that the auditor judged. Who holds the \
     blocks can check it again, without trust in the store:";

const REASONS: [&str; 3] = [
    "Hold its labels against the matchers above. The first that it fails is the reason, whatever \
     the store holds. A label that it does not have counts as the empty text.",
    "If it passes them all, it has no sample in the range: nothing was written then under exactly \
     these labels, or it was deleted, or it lies in no part.",
    "There is no third case, if the certificates are right: a series that passes and has a sample \
     would be a box of its own, marked ✓, and a row.",
];

fn titled(pen: &mut Pen, title: &'static str, text: &'static str) {
    word(pen, Tag::H3, title);
    word(pen, Tag::P, text);
}

fn left(pen: &mut Pen) {
    pen.open(Tag::Div);
    word(pen, Tag::H3, "“Why is my series not here?”");
    pen.open(Tag::Ol);
    for reason in REASONS {
        word(pen, Tag::Item, reason);
    }
    pen.close();
    titled(pen, "What a certificate is", CERTIFICATE);
    titled(pen, "Spans and numbers", SPANS);
    pen.close();
}

/// The checks that all parts pass.
fn all_checks(view: &View<'_>) -> Checks {
    let mut all = Checks {
        chain: true,
        names: true,
        rows: true,
        separators: true,
    };
    for answer in view.shown.told.answers.as_slice() {
        let checks = checks_of(answer, view.matchers().len());
        all = Checks {
            chain: all.chain && checks.chain,
            names: all.names && checks.names,
            rows: all.rows && checks.rows,
            separators: all.separators && checks.separators,
        };
    }
    all
}

fn check(pen: &mut Pen, saying: &'static str, holds: bool) {
    pen.open(Tag::Item);
    if holds {
        classed(pen, Tag::B, "yes", "✓");
    } else {
        classed(pen, Tag::B, "no", "✗");
    }
    pen.word(" ");
    pen.word(saying);
    pen.close();
}

/// Who checks that reasons are true.
fn reasons(pen: &mut Pen, view: &View<'_>) {
    if !view.is_audited() {
        titled(pen, "Not checked here", UNCHECKED)
    } else {
        titled(pen, "Checked by the auditor", CHECKED)
    }
}

fn right(pen: &mut Pen, view: &View<'_>) {
    pen.open(Tag::Div);
    word(pen, Tag::H3, "Checked while this page was made");
    pen.begin(Tag::Ul, "checks");
    for (one, holds) in sayings(all_checks(view)) {
        check(pen, text_of(one), holds);
    }
    let merged = "The rows of the answer are the merged rows of the parts.";
    check(pen, merged, view.claim.is_merged);
    pen.close();
    reasons(pen, view);
    pen.open(Tag::Pre);
    word(
        pen,
        Tag::Code,
        "auditor --selector SELECTOR --from N --to N DIR... < REPLY",
    );
    pen.close();
    pen.close();
}

/// The last section.
pub(crate) fn help(pen: &mut Pen, view: &View<'_>) {
    open_section(pen, "help", "What this page shows, and what it does not");
    pen.begin(Tag::Div, "cols");
    left(pen);
    right(pen, view);
    pen.close();
    pen.close();
    pen.line();
}
