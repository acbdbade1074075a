//! What is asked of a request beyond its form.

ghost use Rattle.std.specs.Prelude.{◌≡◌, OnOk};
ghost use Rattle.guard.specs.Hosts.{bytes_of, claimed};
ghost use Rattle.guard.specs.Judging.{has_token, judgement, no_rules, IsAdmitted};

use crate::claims::{Claims, is_local};
use crate::token::{Token, bears};

/// What is asked of a request beyond its form.
#[derive(Drop)]
pub struct Rules {
    /// Nothing changes the store.
    pub read_only: bool,
    /// Each request comes from no page and names this machine, and each that changes the store
    /// bears this token.
    pub token: Option<Token>,
}

/// Why a request does not reach the store.
#[derive(Clone, Copy, Debug, PartialEq, Eq, Drop)]
pub enum Denial {
    /// It would change the store, which nothing may.
    ReadOnly,
    /// It comes from a page, does not name this machine, or bears no token.
    Guarded,
}

/// Whether a request bears the token, if one is asked for.
fn has_token(token: &Option<Token>, authorization: Option<&[u8]>) -> bool
    ensures { result ≡ has_token token.now (bytes_of authorization.entry) }
{
    match (token, authorization) {
        (None, _) => true,
        (Some(_), None) => false,
        (Some(token), Some(value)) => bears(token, value),
    }
}

impl Rules {
    /// No rules: each request is admitted.
    pub fn none() -> Rules
        ensures { result ≡ no_rules }
    {
        Rules {
            read_only: false,
            token: None,
        }
    }

    /// Whether a request may reach the store, or the first reason why not: where it comes from,
    /// then that nothing changes the store, then that it bears no token.
    pub fn judge(&self, claims: &Claims<'_>) -> Result<(), Denial>
        ensures is { result ≡ judgement self.now (claimed claims.now) }
        ensures admitted { OnOk result (IsAdmitted self.now (claimed claims.now)) }
    {
        self.judged(claims)
    }

    fn judged(&self, claims: &Claims<'_>) -> Result<(), Denial>
        ensures { result ≡ judgement self.now (claimed claims.now) }
    {
        if self.token.is_some() && !is_local(claims) {
            return Err(Denial::Guarded);
        }
        if self.read_only && claims.changes {
            return Err(Denial::ReadOnly);
        }
        if claims.changes && !has_token(&self.token, claims.authorization) {
            return Err(Denial::Guarded);
        }
        Ok(())
    }
}
