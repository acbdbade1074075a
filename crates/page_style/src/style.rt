//! The style of a page: colours, patterns, sizes.

/// A piece of the style.
pub(crate) const STYLE_0: &str =
    r#":root{--bg:#fff;--panel:#f5f6f8;--ink:#1a1f26;--mute:#566070;--line:#d5dae1;--soft:#e9ecf0;
--match:#0b4fa8;--onmatch:#fff;--none:#f0f2f5;--nones:#566070;--bad:#b3261e;--badbg:#fdecea;
--ok:#14692d;--okbg:#eaf6ed;--link:#0b4fa8;--f0:#ffe3c4;--s0:#8f4700;--f1:#e7ddf9;
--s1:#57309b;--f2:#cdeee6;--s2:#0a6155;--f3:#fbdae7;--s3:#981150;--f4:#e8eebc;--s4:#505900;
--f5:#ecdfd6;--s5:#66402f;--f6:#f9e8a2;--s6:#6b5000;--f7:#e2e6eb;--s7:#434d59;}
@media screen and (prefers-color-scheme:dark){:root{--bg:#0f1318;--panel:#171c23;
--ink:#e6e9ed;--mute:#9da7b4;--line:#323a45;--soft:#232a33;--match:#6db3ff;
--onmatch:#06213f;--none:#1d242d;--nones:#9da7b4;--bad:#ff8a80;--badbg:#3a1a18;--ok:#6fd58b;
--okbg:#13291a;--link:#7dbbff;--f0:#3f2a12;--s0:#ffb066;--f1:#2e2448;--s1:#c3a6ff;
--f2:#12352f;--s2:#5fd6bf;--f3:#431a2d;--s3:#ff9cc2;--f4:#30350f;--s4:#cbd75a;--f5:#38291f;
--s5:#d9ac92;--f6:#3b3008;--s6:#ecc94b;--f7:#2a3038;--s7:#b3bfcc;}}
*{box-sizing:border-box}
html{color-scheme:light dark;-webkit-text-size-adjust:100%}
body{margin:0 auto;max-width:1120px;padding:22px 28px 56px;background:var(--bg);
color:var(--ink);font:15px/1.5 system-ui,-apple-system,"Segoe UI",Roboto,"Helvetica Neue",
"Liberation Sans",Arial,sans-serif}
code,pre,.ms,.num text,.iv td,.iv tbody th.n{font-family:ui-monospace,SFMono-Regular,Menlo,
Consolas,"DejaVu Sans Mono","Liberation Mono",monospace}
code{font-size:.92em;overflow-wrap:anywhere}
a{color:var(--link);text-decoration-thickness:1px;text-underline-offset:2px}
h1{font-size:21px;line-height:1.35;margin:2px 0 2px;font-weight:600}
h1 code{font-size:1em}
h2{font-size:18px;margin:24px 0 6px;padding-top:12px;border-top:1px solid var(--line)}
h3{font-size:15px;margin:0 0 6px}
p{margin:6px 0}
.kicker{margin:0;font-size:12px;letter-spacing:.08em;text-transform:uppercase;
color:var(--mute)}
.mute,.note,.left{color:var(--mute)}
.note{font-size:13px;max-width:116ch}
.left{font-size:14px;padding:8px 10px;border:1px dashed var(--line);border-radius:4px}
.t{font-weight:600;font-variant-numeric:tabular-nums;white-space:nowrap}
.ms{font-size:12px;color:var(--mute);font-variant-numeric:tabular-nums}
.say{margin:12px 0;padding:10px 18px;border-radius:6px;border:1px solid var(--ok);
border-left-width:6px;background:var(--okbg)}
.say .big{font-size:19px;font-weight:650;margin:0}
.say .mark{color:var(--ok)}
.say.bad{border-color:var(--bad);background:var(--badbg)}
"#;

/// A piece of the style.
pub(crate) const STYLE_1: &str = r#".say.bad .mark,.no{color:var(--bad)}
.say.plain{border-color:var(--mute);background:var(--panel)}
.say.plain .mark{color:var(--mute)}
.yes{color:var(--ok)}
.audit{font-size:14px}
.about{margin:14px 0;padding:10px 18px;border-radius:6px;border:1px solid var(--line);
border-left:6px solid var(--match);background:var(--panel)}
.nums{display:flex;flex-wrap:wrap;gap:2px 34px;margin:14px 0 0}
.nums div{display:flex;flex-direction:row-reverse;gap:6px;align-items:baseline}
.nums dd{margin:0;font-size:19px;font-weight:650;font-variant-numeric:tabular-nums}
.nums dt{font-size:14px}
.nums dt a{color:var(--mute)}
table{border-collapse:collapse;width:100%;font-size:14px}
th{text-align:left;font-weight:600}
thead th{font-size:12px;color:var(--mute);font-weight:500;vertical-align:bottom;
padding:4px 10px 4px 0}
tbody th,tbody td,tfoot td{border-top:1px solid var(--soft);padding:6px 10px 6px 0;
vertical-align:middle}
.n{text-align:right;font-variant-numeric:tabular-nums;white-space:nowrap}
.scroll{overflow-x:auto}
.key td,.key tbody th{padding-top:4px;padding-bottom:4px}
.key th[scope=row]{white-space:nowrap;padding-right:18px}
.key .hl{text-align:right;white-space:nowrap;padding-right:2px}
.key input{margin:0;vertical-align:-1px;accent-color:var(--match)}
.bar{vertical-align:-1px}
.track{fill:var(--soft)}
.pct{display:inline-block;padding-left:4px;font-variant-numeric:tabular-nums}
.key td.wide,.key th.wide{padding-left:14px;white-space:nowrap}
.chip{vertical-align:-4px}
.part{margin:12px 0;padding:12px 18px 8px;border:1px solid var(--line);border-radius:6px;
break-inside:avoid}
.part h3{display:flex;flex-wrap:wrap;gap:4px 16px;align-items:center}
.counts{display:flex;flex-wrap:wrap;gap:2px 14px;font-weight:400;color:var(--mute);
font-variant-numeric:tabular-nums}
.part.skip{border-style:dashed;color:var(--mute)}
.part.skip h3{color:var(--ink);display:block}
.least{font-weight:600;margin:2px 0 8px}
.flaw{color:var(--bad)}
.fig{display:block;overflow:visible;margin:4px 0 2px}
svg text{fill:var(--ink);font-size:12px}
svg .cap,.ax text{fill:var(--mute);font-size:11px}
.num text{font-size:11px;fill:var(--ink)}
.fig rect{shape-rendering:crispEdges}
.hole,.gap{fill:url(#hole)}
.fan line{stroke:var(--mute);stroke-width:1;opacity:.45}
.fan.fine line{opacity:.28}
.cut line{stroke:var(--bg);stroke-width:2;shape-rendering:crispEdges}
.cut.fine line{stroke-width:1}
.half{stroke:var(--bg);stroke-width:1;stroke-dasharray:5 5;shape-rendering:crispEdges}
"#;

/// A piece of the style.
pub(crate) const STYLE_2: &str = r#".brk{stroke:var(--bg);stroke-width:3}
.sep,.sep path{fill:var(--ink)}
.sep rect{fill:var(--ink)}
.many{opacity:.5}
.sep .gap{fill:url(#hole)}
.l{font-weight:700;font-size:13px;paint-order:stroke;stroke-width:5px;stroke-linejoin:round}
.fig .l{font-size:15px}
.vm{fill:var(--match)}
svg .wm{fill:var(--onmatch);stroke:none}
.vn{fill:url(#pn)}
svg .wn{fill:var(--nones);stroke:var(--none)}
details{margin:4px 0}
summary{cursor:pointer;color:var(--link);font-size:14px;padding:3px 0}
.iv{font-size:13px;margin:4px 0 6px}
.iv td,.iv th{padding-top:3px;padding-bottom:3px}
.iv td:nth-last-child(-n+2){font-family:inherit}
.iv .vd{white-space:nowrap;padding-right:26px}
.iv td.n,.iv th.n{padding-right:26px;width:1%}
.time th[scope=row]{white-space:nowrap;width:1%;padding-right:16px}
.time td,.time th{padding-top:2px;padding-bottom:2px}
.when{width:60%}
.time .when svg,.sp svg{display:block;overflow:visible}
.time .n{width:1%;padding-left:10px}
.fl{white-space:nowrap;font-size:13px;line-height:1.35;width:1%;padding-left:10px}
.fl .t{font-weight:400}
.fl .ms{display:none}
.skipw{color:var(--mute);font-size:13px;padding-left:10px}
.skipped{fill:url(#skip);stroke:var(--line);stroke-dasharray:4 3}
.bars{fill:var(--match)}
.grid,.base{stroke:var(--line);stroke-width:1;shape-rendering:crispEdges}
.sum th,.sum td{border-top:2px solid var(--line)}
.rows td,.rows th{padding-top:4px;padding-bottom:4px}
.rows .s{width:40%}
.rows .pt{white-space:nowrap}
.rows .sp{width:196px;padding-right:6px;padding-left:6px}
.rows th.sp svg{width:180px}
.rows thead .n{padding-left:6px}
.lbs{font-size:12.5px;line-height:1.45;display:inline-block}
.lb{display:inline}
.v{color:var(--ink)}
.pt{font-size:13px;color:var(--mute);padding-left:8px}
.ln{fill:none;stroke:var(--match);stroke-width:1.4;stroke-linejoin:round;
vector-effect:non-scaling-stroke}
.dt{fill:none;stroke:var(--match);stroke-width:4.5;stroke-linecap:round;
vector-effect:non-scaling-stroke}
.u{font:600 .72em/1 ui-monospace,Menlo,Consolas,"DejaVu Sans Mono",monospace;
font-style:normal;padding:1px 3px;margin:0 1px;border:1px solid var(--mute);
border-radius:3px;color:var(--mute);white-space:nowrap;unicode-bidi:isolate;direction:ltr}
.cols{display:grid;grid-template-columns:1fr 1fr;gap:8px 44px;font-size:14px}
.cols h3{margin-top:12px}
.cols ol,.cols ul{margin:6px 0;padding-left:20px}
.cols li{margin:4px 0}
"#;

/// A piece of the style.
pub(crate) const STYLE_3: &str = r#".checks{list-style:none;padding-left:0!important}
pre{background:var(--panel);border:1px solid var(--line);border-radius:4px;padding:8px 12px;
white-space:pre-wrap;margin:6px 0}
@media screen and (max-width:760px){
body{padding:16px 14px 40px}
.cols{grid-template-columns:1fr}
.key .wide{display:none}
.part{padding:12px 12px 8px}
.nums{gap:2px 22px}
.lw{display:none}
.iv td.n,.iv th.n{padding-right:12px}
.iv .x{display:none}
.time .fl,.time .iw{display:none}
.rows thead{display:none}
.rows,.rows tbody{display:block}
.rows tr{display:grid;grid-template-columns:26px repeat(3,1fr);gap:0 8px;
border-top:1px solid var(--line);padding:8px 0}
.rows td,.rows th[scope=row]{border:0;padding:1px 0;width:auto}
.rows .s{grid-column:2/-1;width:auto}
.rows .sp{grid-column:2/-1;width:100%;padding:0}
.rows .sp svg{width:100%}
.rows td[data-l]{text-align:left;font-size:13px}
.rows td[data-l]:nth-of-type(3n){grid-column-start:2}
.rows td[data-l]::before{content:attr(data-l) " ";color:var(--mute);font-size:12px}
.pt{padding-left:0}
}
@media print{
@page{margin:12mm}
body{max-width:none;padding:0;zoom:.72}
.part{break-inside:auto}
.hl,summary{display:none}
details::details-content{content-visibility:visible;block-size:auto;display:block}
h2,h3{break-after:avoid}
tr,.fig{break-inside:avoid}
*{-webkit-print-color-adjust:exact;print-color-adjust:exact}
}
.v0{fill:url(#p0)}.v8{fill:url(#p8)}svg .w0,svg .w8{fill:var(--s0);stroke:var(--f0)}.g0{
fill:var(--f0)}.h0{stroke:var(--s0);fill:none}
.v1{fill:url(#p1)}.v9{fill:url(#p9)}svg .w1,svg .w9{fill:var(--s1);stroke:var(--f1)}.g1{
fill:var(--f1)}.h1{stroke:var(--s1);fill:none}
.v2{fill:url(#p2)}.v10{fill:url(#p10)}svg .w2,svg .w10{fill:var(--s2);stroke:var(--f2)}.g2{
fill:var(--f2)}.h2{stroke:var(--s2);fill:none}
.v3{fill:url(#p3)}.v11{fill:url(#p11)}svg .w3,svg .w11{fill:var(--s3);stroke:var(--f3)}.g3{
fill:var(--f3)}.h3{stroke:var(--s3);fill:none}
.v4{fill:url(#p4)}.v12{fill:url(#p12)}svg .w4,svg .w12{fill:var(--s4);stroke:var(--f4)}.g4{
fill:var(--f4)}.h4{stroke:var(--s4);fill:none}
.v5{fill:url(#p5)}.v13{fill:url(#p13)}svg .w5,svg .w13{fill:var(--s5);stroke:var(--f5)}.g5{
fill:var(--f5)}.h5{stroke:var(--s5);fill:none}
.v6{fill:url(#p6)}.v14{fill:url(#p14)}svg .w6,svg .w14{fill:var(--s6);stroke:var(--f6)}.g6{
fill:var(--f6)}.h6{stroke:var(--s6);fill:none}
"#;

/// A piece of the style.
pub(crate) const STYLE_4: &str =
    r#".v7{fill:url(#p7)}.v15{fill:url(#p15)}svg .w7,svg .w15{fill:var(--s7);stroke:var(--f7)}.g7{
fill:var(--f7)}.h7{stroke:var(--s7);fill:none}
.gn{fill:var(--none)}.hn{stroke:var(--nones);fill:none}.gb{fill:var(--badbg)}.hb{
stroke:var(--bad);fill:none}.hl0{stroke:var(--line);fill:none}
.defs{position:absolute}
:root:has(#s-vm:checked) .fig .c:not(.vm),:root:has(#s-vm:checked) .map .c:not(.vm){
fill:var(--soft)}:root:has(#s-vm:checked) .fig .l:not(.wm){fill:var(--mute);stroke:none;
opacity:.55}
:root:has(#s-vm:checked) tr.i:not(.r-vm){display:none}
:root:has(#s-vn:checked) .fig .c:not(.vn),:root:has(#s-vn:checked) .map .c:not(.vn){
fill:var(--soft)}:root:has(#s-vn:checked) .fig .l:not(.wn){fill:var(--mute);stroke:none;
opacity:.55}
:root:has(#s-vn:checked) tr.i:not(.r-vn){display:none}
:root:has(#s-v0:checked) .fig .c:not(.v0),:root:has(#s-v0:checked) .map .c:not(.v0){
fill:var(--soft)}:root:has(#s-v0:checked) .fig .l:not(.w0){fill:var(--mute);stroke:none;
opacity:.55}
:root:has(#s-v0:checked) tr.i:not(.r-v0){display:none}
:root:has(#s-v1:checked) .fig .c:not(.v1),:root:has(#s-v1:checked) .map .c:not(.v1){
fill:var(--soft)}:root:has(#s-v1:checked) .fig .l:not(.w1){fill:var(--mute);stroke:none;
opacity:.55}
:root:has(#s-v1:checked) tr.i:not(.r-v1){display:none}
:root:has(#s-v2:checked) .fig .c:not(.v2),:root:has(#s-v2:checked) .map .c:not(.v2){
fill:var(--soft)}:root:has(#s-v2:checked) .fig .l:not(.w2){fill:var(--mute);stroke:none;
opacity:.55}
:root:has(#s-v2:checked) tr.i:not(.r-v2){display:none}
:root:has(#s-v3:checked) .fig .c:not(.v3),:root:has(#s-v3:checked) .map .c:not(.v3){
fill:var(--soft)}:root:has(#s-v3:checked) .fig .l:not(.w3){fill:var(--mute);stroke:none;
opacity:.55}
:root:has(#s-v3:checked) tr.i:not(.r-v3){display:none}
:root:has(#s-v4:checked) .fig .c:not(.v4),:root:has(#s-v4:checked) .map .c:not(.v4){
fill:var(--soft)}:root:has(#s-v4:checked) .fig .l:not(.w4){fill:var(--mute);stroke:none;
opacity:.55}
:root:has(#s-v4:checked) tr.i:not(.r-v4){display:none}
:root:has(#s-v5:checked) .fig .c:not(.v5),:root:has(#s-v5:checked) .map .c:not(.v5){
fill:var(--soft)}:root:has(#s-v5:checked) .fig .l:not(.w5){fill:var(--mute);stroke:none;
opacity:.55}
:root:has(#s-v5:checked) tr.i:not(.r-v5){display:none}
:root:has(#s-v6:checked) .fig .c:not(.v6),:root:has(#s-v6:checked) .map .c:not(.v6){
"#;

/// A piece of the style.
pub(crate) const STYLE_5: &str =
    r#"fill:var(--soft)}:root:has(#s-v6:checked) .fig .l:not(.w6){fill:var(--mute);stroke:none;
opacity:.55}
:root:has(#s-v6:checked) tr.i:not(.r-v6){display:none}
:root:has(#s-v7:checked) .fig .c:not(.v7),:root:has(#s-v7:checked) .map .c:not(.v7){
fill:var(--soft)}:root:has(#s-v7:checked) .fig .l:not(.w7){fill:var(--mute);stroke:none;
opacity:.55}
:root:has(#s-v7:checked) tr.i:not(.r-v7){display:none}
:root:has(#s-v8:checked) .fig .c:not(.v8),:root:has(#s-v8:checked) .map .c:not(.v8){
fill:var(--soft)}:root:has(#s-v8:checked) .fig .l:not(.w8){fill:var(--mute);stroke:none;
opacity:.55}
:root:has(#s-v8:checked) tr.i:not(.r-v8){display:none}
:root:has(#s-v9:checked) .fig .c:not(.v9),:root:has(#s-v9:checked) .map .c:not(.v9){
fill:var(--soft)}:root:has(#s-v9:checked) .fig .l:not(.w9){fill:var(--mute);stroke:none;
opacity:.55}
:root:has(#s-v9:checked) tr.i:not(.r-v9){display:none}
:root:has(#s-v10:checked) .fig .c:not(.v10),:root:has(#s-v10:checked) .map .c:not(.v10){
fill:var(--soft)}:root:has(#s-v10:checked) .fig .l:not(.w10){fill:var(--mute);stroke:none;
opacity:.55}
:root:has(#s-v10:checked) tr.i:not(.r-v10){display:none}
:root:has(#s-v11:checked) .fig .c:not(.v11),:root:has(#s-v11:checked) .map .c:not(.v11){
fill:var(--soft)}:root:has(#s-v11:checked) .fig .l:not(.w11){fill:var(--mute);stroke:none;
opacity:.55}
:root:has(#s-v11:checked) tr.i:not(.r-v11){display:none}
:root:has(#s-v12:checked) .fig .c:not(.v12),:root:has(#s-v12:checked) .map .c:not(.v12){
fill:var(--soft)}:root:has(#s-v12:checked) .fig .l:not(.w12){fill:var(--mute);stroke:none;
opacity:.55}
:root:has(#s-v12:checked) tr.i:not(.r-v12){display:none}
:root:has(#s-v13:checked) .fig .c:not(.v13),:root:has(#s-v13:checked) .map .c:not(.v13){
fill:var(--soft)}:root:has(#s-v13:checked) .fig .l:not(.w13){fill:var(--mute);stroke:none;
opacity:.55}
:root:has(#s-v13:checked) tr.i:not(.r-v13){display:none}
:root:has(#s-v14:checked) .fig .c:not(.v14),:root:has(#s-v14:checked) .map .c:not(.v14){
fill:var(--soft)}:root:has(#s-v14:checked) .fig .l:not(.w14){fill:var(--mute);stroke:none;
opacity:.55}
:root:has(#s-v14:checked) tr.i:not(.r-v14){display:none}
:root:has(#s-v15:checked) .fig .c:not(.v15),:root:has(#s-v15:checked) .map .c:not(.v15){
fill:var(--soft)}:root:has(#s-v15:checked) .fig .l:not(.w15){fill:var(--mute);stroke:none;
opacity:.55}
:root:has(#s-v15:checked) tr.i:not(.r-v15){display:none}
"#;
