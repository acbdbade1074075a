//! What stands before the content of a page, and behind it.

ghost use Rattle.std.specs.Prelude.{◌≡◌, ◌++◌, codes, OnOk};
ghost use Rattle.std.specs.List.{flat_map};

use crate::patterns::{PATTERNS_0, PATTERNS_1};
use crate::style::{STYLE_0, STYLE_1, STYLE_2, STYLE_3, STYLE_4, STYLE_5};
use std::alloc::AllocError;

const HEAD: &str = r#"<!doctype html>
<html lang="en">
<head>
<meta charset="utf-8">
<meta http-equiv="Content-Security-Policy" content="default-src 'none';
style-src 'sha256-GhEGZNYchVZTcmR7LcWFXbIp3/TPG5A7NC9oB5jOhFI='; base-uri 'none';
form-action 'none'">
<meta name="viewport" content="width=device-width,initial-scale=1">
<meta name="color-scheme" content="light dark">
<title>Audited answer</title>
<style>"#;

const BODY: &str = r#"</style>
</head>
<body>
"#;

/// What stands before the content of each page: its policy and its style, and the patterns of
/// verdicts.
pub const FRONT: [&str; 10] = [
    HEAD, STYLE_0, STYLE_1, STYLE_2, STYLE_3, STYLE_4, STYLE_5, BODY, PATTERNS_0, PATTERNS_1,
];

/// Appends what stands before the content of each page.
pub fn append_front(out: &mut Vec<u8>) -> Result<(), AllocError>
    ensures { OnOk result (out.new.items ≡ out.old.items ++ flat_map (λ t. t.now) FRONT) }
{
    append_texts(out, &FRONT)
}

/// Appends texts, one after another.
fn append_texts(out: &mut Vec<u8>, texts: &[&str]) -> Result<(), AllocError>
    ensures { OnOk result (out.new.items ≡ out.old.items ++ flat_map (λ t. t.now) texts.now) }
{
    for text in texts {
        out.extend_from_slice(text.as_bytes())?;
    }
    Ok(())
}

/// Appends what ends each page.
pub fn append_back(out: &mut Vec<u8>) -> Result<(), AllocError>
    ensures { OnOk result (out.new.items ≡ out.old.items ++ codes "</body>\n</html>\n") }
{
    out.extend_from_slice(b"</body>\n</html>\n")
}
