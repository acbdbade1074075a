//! What it means that a reply is right of a store.

ghost use Rattle.std.specs.Prelude.{◌≡◌, ◌<◌, ◌↔◌, ℕ, List, Some, is_some, true};
ghost use Rattle.labels.specs.Parts.{Part};
ghost use Rattle.matchers.specs.Views.{QueryView};
ghost use Rattle.reply_reader.specs.declared.reply.Reply.{Reply as ToldReply};
ghost use Rattle.kept_walk.specs.Kept.{Store};
ghost use Rattle.store_audit.specs.Reports.{IsJudgement, first_of};
ghost use Rattle.store_audit.specs.declared.judging.StateReport.{StateReport as SaidReport};
ghost use Rattle.store_audit.specs.declared.judging.StoreJudgement.TheVariants.{Told as Says};
ghost use Rattle.store_command.specs.Printing.{is_right};
ghost use Rattle.store_command.specs.States.{IsRightAt, IsRightBefore, IsRightSomewhere};

/// The law of right replies: a state was found and no line has a flaw, exactly where there is a
/// state of the store, behind so many events or more, of which all of the reply is right.
pub fn right_replies()
    ensures { (query : QueryView) (reply : ToldReply) (since : ℕ) (store : Store)
        (blocks : List Part) (said : SaidReport)
        → IsJudgement query reply since store blocks (Says said)
        → (is_right said ≡ true)
        ↔ IsRightSomewhere query reply since (first_of store blocks) store.events }
{}

/// The law of earlier replies: a state before so many events is told exactly where there is one of
/// which all of the reply is right, and none from there on. It is such a state.
pub fn earlier_replies()
    ensures exactly { (query : QueryView) (reply : ToldReply) (since : ℕ) (store : Store)
        (blocks : List Part) (said : SaidReport)
        → IsJudgement query reply since store blocks (Says said)
        → (is_some said.earlier ≡ true)
        ↔ (IsRightBefore query reply since (first_of store blocks) store.events
        × (IsRightSomewhere query reply since (first_of store blocks) store.events → ⊥)) }
    ensures such { (query : QueryView) (reply : ToldReply) (since : ℕ) (store : Store)
        (blocks : List Part) (said : SaidReport) (place : ℕ)
        → IsJudgement query reply since store blocks (Says said) → said.earlier ≡ Some place
        → (place < since) × IsRightAt query reply (first_of store blocks) store.events place }
{}
