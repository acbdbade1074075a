//! What is the same as ever without a bound.

ghost use Rattle.std.specs.Prelude.{◌⊎◌, ℕ, List, false};
ghost use Rattle.matchers.specs.Views.{QueryView};
ghost use Rattle.head.specs.Heads.{SnapshotParts};
ghost use Rattle.snapshots.specs.Views.{Known};
ghost use Rattle.requests.specs.declared.refusal.Refusal.TheVariants.{Unavailable};
ghost use Rattle.requests.specs.declared.status.Status.{Status};
ghost use Rattle.query_http.specs.Serving.{IsAnswerReply, IsQueryReply, IsReplyOfRefusal};

/// If the memory for replies is not bounded, `H13` never comes: the reply to a query is its answer,
/// or `H10`.
pub fn unbounded_law()
    ensures { (opening : SnapshotParts) (query : QueryView) (before after : Known)
        (status : Status) (text : List ℕ)
        → IsQueryReply opening false query before after status text
        → IsAnswerReply opening query before after status text
        ⊎ IsReplyOfRefusal Unavailable status text }
{}
