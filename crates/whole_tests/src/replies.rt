//! Replies to `up{job="a"}`, 0 to 100, of a store with the worked block and an empty head.

/// As the store replies.
pub const SOUND: &[u8] = br#"{"parts":[
{"intervals":[{"from":4,"until":6,"verdict":0},{"from":6,"until":7,"verdict":"match"},
  {"from":7,"until":8,"verdict":"match"},{"from":8,"until":4294967296,"verdict":1}],
 "part":"block 0",
 "rows":[{"labels":{"__name__":"up","job":"a"},"samples":[[10,1]]},
  {"labels":{"__name__":"up","job":"a","zone":"x"},"samples":[[10,6]]}],
 "separators":[4,6,7,8]},
{"intervals":[],"part":"head","rows":[],"separators":[]}],
"rows":[{"labels":{"__name__":"up","job":"a"},"samples":[[10,1]]},
 {"labels":{"__name__":"up","job":"a","zone":"x"},"samples":[[10,6]]}]}"#;

/// As it replies where the block had other numbers, and two series whose samples were deleted.
pub const NUMBERED_OTHERWISE: &[u8] = br#"{"parts":[
{"intervals":[{"from":10,"until":40,"verdict":0},{"from":40,"until":50,"verdict":"match"},
  {"from":50,"until":60,"verdict":"none"},{"from":60,"until":70,"verdict":"match"},
  {"from":70,"until":4294967296,"verdict":1}],
 "part":"block 0",
 "rows":[{"labels":{"__name__":"up","job":"a"},"samples":[[10,1]]},
  {"labels":{"__name__":"up","job":"a","zone":"x"},"samples":[[10,6]]}],
 "separators":[10,40,50,60,70]},
{"intervals":[],"part":"head","rows":[],"separators":[]}],
"rows":[{"labels":{"__name__":"up","job":"a"},"samples":[[10,1]]},
 {"labels":{"__name__":"up","job":"a","zone":"x"},"samples":[[10,6]]}]}"#;

/// One match for two series.
pub const ONE_MATCH_FOR_TWO: &[u8] = br#"{"parts":[
{"intervals":[{"from":4,"until":6,"verdict":0},{"from":6,"until":8,"verdict":"match"},
  {"from":8,"until":4294967296,"verdict":1}],
 "part":"block 0",
 "rows":[{"labels":{"__name__":"up","job":"a"},"samples":[[10,1]]},
  {"labels":{"__name__":"up","job":"a","zone":"x"},"samples":[[10,6]]}],
 "separators":[4,6,8]},
{"intervals":[],"part":"head","rows":[],"separators":[]}],
"rows":[{"labels":{"__name__":"up","job":"a"},"samples":[[10,1]]},
 {"labels":{"__name__":"up","job":"a","zone":"x"},"samples":[[10,6]]}]}"#;

/// A row is left out of the block and of the rows.
pub const A_ROW_LEFT_OUT: &[u8] = br#"{"parts":[
{"intervals":[{"from":4,"until":6,"verdict":0},{"from":6,"until":7,"verdict":"match"},
  {"from":7,"until":8,"verdict":"match"},{"from":8,"until":4294967296,"verdict":1}],
 "part":"block 0",
 "rows":[{"labels":{"__name__":"up","job":"a"},"samples":[[10,1]]}],
 "separators":[4,6,7,8]},
{"intervals":[],"part":"head","rows":[],"separators":[]}],
"rows":[{"labels":{"__name__":"up","job":"a"},"samples":[[10,1]]}]}"#;

/// The head is told twice, and the block not at all.
pub const THE_HEAD_TWICE: &[u8] = br#"{"parts":[
{"intervals":[],"part":"head","rows":[],"separators":[]},
{"intervals":[],"part":"head","rows":[],"separators":[]}],
"rows":[]}"#;

/// Only a block that the state does not have is told.
pub const A_BLOCK_TOO_MANY: &[u8] = br#"{"parts":[{"part":"block 1","skipped":true}],"rows":[]}"#;
