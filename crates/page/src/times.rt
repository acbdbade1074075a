//! Times: in milliseconds as the reply has them, and before it in UTC.

use crate::pen::Pen;
use crate::words::classed;
use page_text::Tag;

/// A day and a time of it, in UTC.
#[derive(Clone, Copy)]
pub(crate) struct Civil {
    year: u64,
    month: u64,
    day: u64,
    second: u64,
    millisecond: u64,
}

/// The day of a number of days since 1970, after the proleptic Gregorian calendar.
fn day_of(days: u64) -> (u64, u64, u64) {
    let from_march = days.saturating_add(719_468);
    let (era, day_of_era) = (from_march / 146_097, from_march % 146_097);
    let leaps = day_of_era / 36_524;
    let fewer = (day_of_era / 1460).saturating_add(day_of_era / 146_096);
    let year_of_era = day_of_era.saturating_add(leaps).saturating_sub(fewer) / 365;
    let before = (year_of_era * 365).saturating_add(year_of_era / 4);
    let day_of_year = day_of_era
        .saturating_add(year_of_era / 100)
        .saturating_sub(before);
    let month = day_of_year.saturating_mul(5).saturating_add(2) / 153;
    let day = day_of_year.saturating_sub(month.saturating_mul(153).saturating_add(2) / 5);
    let year = era.saturating_mul(400).saturating_add(year_of_era);
    if month < 10 {
        (year, month + 3, day.saturating_add(1))
    } else {
        (
            year.saturating_add(1),
            month.saturating_sub(9),
            day.saturating_add(1),
        )
    }
}

/// The day and the time, if a number of milliseconds lies in the years 1973 to 2099.
pub(crate) fn civil_of(t: i64) -> Option<Civil> {
    if !(100_000_000_000..4_102_444_800_000).contains(&t) {
        return None;
    }
    let t = t.unsigned_abs();
    let (year, month, day) = day_of(t / 86_400_000);
    Some(Civil {
        year,
        month,
        day,
        second: t / 1000 % 86_400,
        millisecond: t % 1000,
    })
}

fn two(pen: &mut Pen, n: u64) {
    if n < 10 {
        pen.word("0");
    }
    pen.number(n);
}

fn three(pen: &mut Pen, n: u64) {
    if n < 100 {
        pen.word("0");
    }
    two(pen, n);
}

fn hour_and_minute(pen: &mut Pen, second: u64) {
    two(pen, second / 3600);
    pen.word(":");
    two(pen, second / 60 % 60);
}

fn month_and_day(pen: &mut Pen, at: Civil) {
    two(pen, at.month);
    pen.word("-");
    two(pen, at.day);
}

fn utc(pen: &mut Pen, at: Civil) {
    pen.number(at.year);
    pen.word("-");
    month_and_day(pen, at);
    pen.word(" ");
    hour_and_minute(pen, at.second);
    pen.word(":");
    two(pen, at.second % 60);
    if at.millisecond > 0 {
        pen.word(".");
        three(pen, at.millisecond);
    }
}

/// A time, for people first if it is one of theirs.
pub(crate) fn when(pen: &mut Pen, t: i64) {
    pen.begin(Tag::B, "t");
    let Some(at) = civil_of(t) else {
        pen.integer(t);
        pen.close();
        return;
    };
    utc(pen, at);
    pen.close();
    pen.word(" ");
    pen.begin(Tag::Span, "ms");
    pen.integer(t);
    pen.close();
}

/// A time at a tick of an axis whose ticks are so many milliseconds apart.
pub(crate) fn tick(pen: &mut Pen, t: i64, step: u64) {
    let Some(at) = civil_of(t) else {
        pen.integer(t);
        return;
    };
    if step >= 86_400_000 {
        return month_and_day(pen, at);
    }
    hour_and_minute(pen, at.second);
    if step >= 60_000 {
        return;
    }
    pen.word(":");
    two(pen, at.second % 60);
}

/// The first and the last of some times.
pub(crate) fn ends(pen: &mut Pen, from: i64, to: i64) {
    when(pen, from);
    if from < to {
        pen.leaf(Tag::Break);
        when(pen, to);
    }
}

/// The times of a query.
pub(crate) fn range(pen: &mut Pen, from: i64, to: i64) {
    let (first, last) = (from == labels::MIN_TIME, to == labels::MAX_TIME);
    pen.begin(Tag::P, "range");
    if first && last {
        pen.word("all times");
    } else {
        pen.word("from ");
        if first {
            pen.word("the beginning");
        } else {
            when(pen, from);
        }
        pen.word(" to ");
        if last {
            pen.word("the end");
        } else {
            when(pen, to);
        }
    }
    let utc = civil_of(from).is_some() || civil_of(to).is_some();
    pen.word(" ");
    let unit = if utc {
        "(milliseconds, both ends included, UTC)"
    } else {
        "(milliseconds, both ends included)"
    };
    classed(pen, Tag::Span, "mute", unit);
    pen.close();
    pen.line();
}
