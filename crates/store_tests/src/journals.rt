//! Tests of the journal from outside: records computed by hand with the CRC-32C vectors of RFC
//! 3720, and events spelled by hand. `world_tests` tries what crashes and failing calls leave.
//! `tests/durable` cuts journals off and changes each of their bytes.

mod events;
mod records;
