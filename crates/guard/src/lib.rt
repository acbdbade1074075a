//! Which requests may reach a store.
//!
//! A server on 127.0.0.1 is reached by each page in that machine's browser and by each local user.
//! [`Rules`] say what is asked of a request beyond its form: that it changes nothing
//! (`read_only`), or that it comes from no page, names this machine and, if it changes the store,
//! bears a [`Token`]. [`Rules::judge`] judges the [`Claims`] of a request's head: exactly the
//! requests of `judgement` (`specs/Judging.antt`) are admitted. Without rules each is.
//!
//! ```
//! let claims = Claims {
//!     changes: true,
//!     has_origin: false,
//!     host: Some(b"127.0.0.1:8080"),
//!     authorization: Some(b"Bearer s3cret"),
//! };
//! assert_eq!(rt; Rules::none().judge(&claims), Ok(()));
//!
//! let rules = Rules {
//!     read_only: false,
//!     token: Token::new(Vec::from_slice(rt.alloc(), b"s3cret")?),
//! };
//! assert_eq!(rt; rules.judge(&claims), Ok(()));
//!
//! let other = Claims { authorization: Some(b"Bearer s3cres"), ..claims };
//! assert_eq!(rt; rules.judge(&other), Err(Denial::Guarded));
//! ```
//!
//! It stands on nothing but std.
#![tactic(auto)]

mod claims;
mod rules;
mod token;

pub use claims::Claims;
pub use rules::{Denial, Rules};
pub use token::Token;
