//! Tests of what reads other programs' data, from outside: chunks that Prometheus's own tools
//! wrote, doubles that are documented elsewhere, and texts of the OpenMetrics specification.

mod decimal_texts;
mod doubles_of_ieee;
mod promtool_chunks;
mod promtool_segments;
