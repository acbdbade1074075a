//! The patterns of verdicts.

/// A piece of the patterns.
pub(crate) const PATTERNS_0: &str =
    r#"<svg width="0" height="0" aria-hidden="true" class="defs"><defs>
<pattern id="p0" width="6" height="6" patternUnits="userSpaceOnUse"><rect class="g0" width="6"
height="6"/><path class="h0" d="M-1 7L7 -1M-1 1L1 -1M5 7L7 5" stroke-width=".9"
stroke-linecap="round"/></pattern>
<pattern id="p1" width="6" height="6" patternUnits="userSpaceOnUse"><rect class="g1" width="6"
height="6"/><path class="h1" d="M1.5 1.5h.01M4.5 4.5h.01" stroke-width="1.6"
stroke-linecap="round"/></pattern>
<pattern id="p2" width="6" height="6" patternUnits="userSpaceOnUse"><rect class="g2" width="6"
height="6"/><path class="h2" d="M-1 -1L7 7M-1 5L1 7M5 -1L7 1" stroke-width=".9"
stroke-linecap="round"/></pattern>
<pattern id="p3" width="6" height="6" patternUnits="userSpaceOnUse"><rect class="g3" width="6"
height="6"/><path class="h3" d="M3 -1V7" stroke-width=".9" stroke-linecap="round"/></pattern>
<pattern id="p4" width="6" height="6" patternUnits="userSpaceOnUse"><rect class="g4" width="6"
height="6"/><path class="h4" d="M-1 3H7" stroke-width=".9" stroke-linecap="round"/></pattern>
<pattern id="p5" width="6" height="6" patternUnits="userSpaceOnUse"><rect class="g5" width="6"
height="6"/><path class="h5" d="M0 0L6 6M6 0L0 6" stroke-width=".9"
stroke-linecap="round"/></pattern>
<pattern id="p6" width="6" height="6" patternUnits="userSpaceOnUse"><rect class="g6" width="6"
height="6"/><path class="h6" d="M3 0V6M0 3H6" stroke-width=".9"
stroke-linecap="round"/></pattern>
<pattern id="p7" width="6" height="6" patternUnits="userSpaceOnUse"><rect class="g7" width="6"
height="6"/><path class="h7" d="M0 4L3 1L6 4" stroke-width=".9"
stroke-linecap="round"/></pattern>
<pattern id="p8" width="6" height="6" patternUnits="userSpaceOnUse"
patternTransform="scale(2)"><rect class="g0" width="6" height="6"/><path class="h0" d="M-1 7L7
-1M-1 1L1 -1M5 7L7 5" stroke-width="1.6" stroke-linecap="round"/></pattern>
<pattern id="p9" width="6" height="6" patternUnits="userSpaceOnUse"
patternTransform="scale(2)"><rect class="g1" width="6" height="6"/><path class="h1" d="M1.5
1.5h.01M4.5 4.5h.01" stroke-width="2.4" stroke-linecap="round"/></pattern>
<pattern id="p10" width="6" height="6" patternUnits="userSpaceOnUse"
patternTransform="scale(2)"><rect class="g2" width="6" height="6"/><path class="h2" d="M-1
-1L7 7M-1 5L1 7M5 -1L7 1" stroke-width="1.6" stroke-linecap="round"/></pattern>
"#;

/// A piece of the patterns.
pub(crate) const PATTERNS_1: &str =
    r#"<pattern id="p11" width="6" height="6" patternUnits="userSpaceOnUse"
patternTransform="scale(2)"><rect class="g3" width="6" height="6"/><path class="h3" d="M3
-1V7" stroke-width="1.6" stroke-linecap="round"/></pattern>
<pattern id="p12" width="6" height="6" patternUnits="userSpaceOnUse"
patternTransform="scale(2)"><rect class="g4" width="6" height="6"/><path class="h4" d="M-1
3H7" stroke-width="1.6" stroke-linecap="round"/></pattern>
<pattern id="p13" width="6" height="6" patternUnits="userSpaceOnUse"
patternTransform="scale(2)"><rect class="g5" width="6" height="6"/><path class="h5" d="M0 0L6
6M6 0L0 6" stroke-width="1.6" stroke-linecap="round"/></pattern>
<pattern id="p14" width="6" height="6" patternUnits="userSpaceOnUse"
patternTransform="scale(2)"><rect class="g6" width="6" height="6"/><path class="h6" d="M3
0V6M0 3H6" stroke-width="1.6" stroke-linecap="round"/></pattern>
<pattern id="p15" width="6" height="6" patternUnits="userSpaceOnUse"
patternTransform="scale(2)"><rect class="g7" width="6" height="6"/><path class="h7" d="M0 4L3
1L6 4" stroke-width="1.6" stroke-linecap="round"/></pattern>
<pattern id="pn" width="8" height="8" patternUnits="userSpaceOnUse"><rect class="gn" width="8"
height="8"/><path class="hn" d="M4 4h.01" stroke-width="1.8" stroke-linecap="round"/></pattern>
<pattern id="hole" width="6" height="6" patternUnits="userSpaceOnUse"><rect class="gb"
width="6" height="6"/><path class="hb" d="M0 0L6 6M6 0L0 6" stroke-width="1.6"
stroke-linecap="round"/></pattern>
<pattern id="skip" width="10" height="10" patternUnits="userSpaceOnUse"><rect class="gn"
width="10" height="10"/><path class="hl0" d="M-2 12L12 -2" stroke-width="1"
stroke-linecap="round"/></pattern>
</defs></svg>
"#;
