//! The line that tells of a refusal.

ghost use Rattle.std.specs.Prelude.{◌≡◌, IfOk};
ghost use Rattle.serde_json.specs.View.{view};
ghost use Rattle.remote_requests.specs.Refusals.{code_of, cause_of, error_of};
ghost use Rattle.remote_requests.specs.Replies.{refusal_data, refusal_line};

use crate::Refusal;
use serde_json::{Value, json};
use std::alloc::{AllocError, Global};

fn refusal_value(alloc: Global, refusal: &Refusal) -> Result<Value, AllocError>
    ensures { IfOk result
        (λ v. view v
        ≡ refusal_data (code_of refusal.now) (cause_of refusal.now) (error_of refusal.now)) }
{
    let code = refusal.code();
    match (refusal.cause(), refusal.error()) {
        (None, None) => json!(in alloc; {"refused": code}),
        (Some(cause), None) => json!(in alloc; {"cause": cause, "refused": code}),
        (None, Some(error)) => json!(in alloc; {
            "error": error, "errorType": "bad_data", "refused": code, "status": "error"
        }),
        (Some(cause), Some(error)) => json!(in alloc; {
            "cause": cause, "error": error, "errorType": "bad_data", "refused": code,
            "status": "error"
        }),
    }
}

fn refusal_line(alloc: Global, refusal: &Refusal) -> Result<Vec<u8>, AllocError>
    ensures { IfOk result (λ line. line.items ≡ refusal_line refusal.now) }
{
    refusal_value(alloc, refusal)?.to_vec(alloc)
}

impl Refusal {
    /// The line that is the body of the reply: compact JSON, as `{"refused":"G3"}`, and with the
    /// number behind it `{"cause":"Z5","refused":"G6"}`. Of a listing it has what Prometheus says
    /// of bad data besides: `status`, `errorType` and `error`.
    pub fn line(&self, alloc: Global) -> Result<Vec<u8>, AllocError>
        ensures { IfOk result (λ line. line.items ≡ refusal_line self.now) }
    {
        refusal_line(alloc, self)
    }
}
