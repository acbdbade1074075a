//! The tokens of a listing.

ghost use Rattle.std.specs.Prelude.{flat_map, OnOk};
ghost use Rattle.remote_listings.specs.Texts.{labels_tokens, pair_tokens, text_tokens};
ghost use Rattle.remote_listings.specs.Texts.{warning_tokens};
ghost use Rattle.remote_listings.specs.Writing.{Adds};

use json::Writer;
use labels::LabelSet;
use std::alloc::AllocError;

fn put_pair(out: &mut Writer, name: &str, value: &str) -> Result<(), AllocError>
    ensures { OnOk result (Adds out.old out.new (pair_tokens (name.now, value.now))) }
{
    out.key(name)?;
    out.string(value)
}

fn put_pairs(out: &mut Writer, labels: &LabelSet) -> Result<(), AllocError>
    ensures { OnOk result (Adds out.old out.new (flat_map pair_tokens labels.now)) }
{
    for at in 0..labels.len() {
        let (name, value) = labels.pair(at);
        put_pair(out, name, value)?;
    }
    Ok(())
}

fn put_labels(out: &mut Writer, labels: &LabelSet) -> Result<(), AllocError>
    ensures { OnOk result (Adds out.old out.new (labels_tokens labels.now)) }
{
    out.begin_object()?;
    put_pairs(out, labels)?;
    out.end_object()
}

/// Writes each label set.
pub fn put_sets(out: &mut Writer, sets: &[LabelSet]) -> Result<(), AllocError>
    ensures { OnOk result (Adds out.old out.new (flat_map labels_tokens sets.now)) }
{
    for labels in sets {
        put_labels(out, labels)?;
    }
    Ok(())
}

/// Writes each text.
pub fn put_texts(out: &mut Writer, texts: &[&str]) -> Result<(), AllocError>
    ensures { OnOk result (Adds out.old out.new
        (flat_map (λ text. text_tokens text.now) texts.now)) }
{
    for text in texts {
        out.string(text)?;
    }
    Ok(())
}

fn put_status(out: &mut Writer) -> Result<(), AllocError>
    ensures { OnOk result (Adds out.old out.new status_tokens) }
{
    out.begin_object()?;
    put_pair(out, "status", "success")
}

fn put_list(out: &mut Writer, name: &str) -> Result<(), AllocError>
    ensures { OnOk result (Adds out.old out.new (list_tokens name.now)) }
{
    out.key(name)?;
    out.begin_array()
}

/// Writes what stands before the items.
pub fn put_front(out: &mut Writer) -> Result<(), AllocError>
    ensures { OnOk result (Adds out.old out.new front_tokens) }
{
    put_status(out)?;
    put_list(out, "data")
}

ghost use Rattle.remote_listings.specs.Writing.{back_tokens, front_tokens, last_tokens};
ghost use Rattle.remote_listings.specs.Writing.{list_tokens, status_tokens};

fn put_last(out: &mut Writer, text: &str) -> Result<(), AllocError>
    ensures { OnOk result (Adds out.old out.new (last_tokens text.now)) }
{
    out.string(text)?;
    out.end_array()
}

fn put_warning(out: &mut Writer, cut: bool) -> Result<(), AllocError>
    ensures { OnOk result (Adds out.old out.new (warning_tokens cut)) }
{
    if !cut {
        return Ok(());
    }
    put_list(out, "warnings")?;
    put_last(out, "results truncated due to limit")
}

/// Writes what stands behind the items.
pub fn put_back(out: &mut Writer, cut: bool) -> Result<(), AllocError>
    ensures { OnOk result (Adds out.old out.new (back_tokens cut)) }
{
    out.end_array()?;
    put_warning(out, cut)?;
    out.end_object()
}
