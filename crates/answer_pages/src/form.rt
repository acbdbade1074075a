//! The form that asks for a page.

ghost use Rattle.std.specs.Prelude.{◌≡◌, IfOk};
ghost use Rattle.answer_pages.specs.Showing.{form_text};

use std::alloc::{AllocError, Global};

/// The form: a page without a script that fetches nothing, and sends its fields to `/page`.
pub const FORM: &str = r#"<!doctype html>
<html lang="en">
<head>
<meta charset="utf-8">
<meta http-equiv="Content-Security-Policy" content="default-src 'none';
style-src 'sha256-J5c2ucbNb4WWS3a15HLE+I8BzilADoOnASpPYqOMdmM='; base-uri 'none';
form-action 'self'">
<meta name="viewport" content="width=device-width,initial-scale=1">
<meta name="color-scheme" content="light dark">
<title>Ask the store</title>
<style>:root{--bg:#fff;--panel:#f5f6f8;--ink:#1a1f26;--mute:#566070;--line:#d5dae1;--link:#0b4fa8;
--on:#fff}
@media (prefers-color-scheme:dark){:root{--bg:#0f1318;--panel:#171c23;--ink:#e6e9ed;
--mute:#9da7b4;--line:#323a45;--link:#6db3ff;--on:#06213f}}
*{box-sizing:border-box}
html{color-scheme:light dark;-webkit-text-size-adjust:100%}
body{margin:0 auto;max-width:760px;padding:22px 28px 56px;background:var(--bg);
color:var(--ink);font:15px/1.5 system-ui,-apple-system,"Segoe UI",Roboto,"Helvetica Neue",
"Liberation Sans",Arial,sans-serif}
h1{font-size:21px;line-height:1.35;margin:2px 0 10px;font-weight:600}
p{margin:6px 0}
.kicker{margin:0;font-size:12px;letter-spacing:.08em;text-transform:uppercase;
color:var(--mute)}
form{margin:16px 0;padding:12px 18px 16px;border:1px solid var(--line);border-radius:6px;
background:var(--panel)}
label{display:block;margin:10px 0 0;font-weight:600;font-size:14px}
small{display:block;font-weight:400;font-size:13px;color:var(--mute)}
input{display:block;width:100%;margin:3px 0 0;padding:6px 8px;border:1px solid var(--mute);
border-radius:4px;background:var(--bg);color:var(--ink);font:14px/1.4 ui-monospace,
SFMono-Regular,Menlo,Consolas,"DejaVu Sans Mono","Liberation Mono",monospace}
.times{display:grid;grid-template-columns:1fr 1fr;gap:0 18px}
button{margin:16px 0 0;padding:7px 18px;border:0;border-radius:4px;background:var(--link);
color:var(--on);font:inherit;font-weight:600;cursor:pointer}
:focus-visible{outline:2px solid var(--link);outline-offset:1px}
code{font:.92em ui-monospace,SFMono-Regular,Menlo,Consolas,"DejaVu Sans Mono",monospace}
.note{font-size:13px;color:var(--mute)}
@media (max-width:560px){body{padding:16px 14px 40px}.times{grid-template-columns:1fr}}
</style>
</head>
<body>
<p class="kicker">Audited answer</p>
<h1>Ask for series, and see why they are all</h1>
<form action="/page" method="get">
<label>Selector
<input name="selector" required autofocus autocomplete="off" autocapitalize="off"
spellcheck="false" placeholder="up{job=&quot;api&quot;,instance=~&quot;web.*&quot;}">
</label>
<div class="times">
<label>From<small>milliseconds since 1970; empty: from the first</small>
<input name="from" inputmode="numeric" pattern="0|-?[1-9][0-9]*" autocomplete="off"></label>
<label>To<small>this time is in the range; empty: to the last</small>
<input name="to" inputmode="numeric" pattern="0|-?[1-9][0-9]*" autocomplete="off"></label>
</div>
<label>About<small>one series: the page says why it is in the answer, or not</small>
<input name="about" autocomplete="off" autocapitalize="off" spellcheck="false"
placeholder="up{job=&quot;b&quot;}"></label>
<button>Ask</button>
</form>
<p class="note">The page of the answer shows, for each part of the store, intervals that cover all
of its series: why each one is in the answer, or which matcher rejects it. The store certifies it;
nobody has judged it. <code>auditor</code> judges an answer against the files of blocks.</p>
</body>
</html>
"#;

/// The form that asks for a page.
#[tactic(auto, unfolding(crate::specs::Showing::form_text))]
pub fn write_form(alloc: Global) -> Result<Vec<u8>, AllocError>
    ensures { IfOk result (λ bytes. bytes.items ≡ form_text) }
{
    let mut bytes = Vec::new(alloc);
    bytes.extend_from_slice(FORM.as_bytes())?;
    Ok(bytes)
}
