//! What holds of requests at the front of bytes.

ghost use Rattle.std.specs.Prelude.{◌≡◌, ℕ, List, ◌++◌};
ghost use Rattle.httparse.specs.Grammar.{RequestHead};
ghost use Rattle.waiting_room.specs.Framing.{Framing, IsFramed, IsRequest};
ghost use Rattle.waiting_room.specs.Framing.{Request};
ghost use Rattle.waiting_room.specs.Coming.{Comes, IsSettled};
ghost use Rattle.waiting_room.specs.declared.reading.End.{End};

/// No more and no fewer bytes could have been handed over: of one input, one whole request at most
/// stands at the front.
pub fn request_law()
    ensures { (most : ℕ) (a b x y : List ℕ) → IsRequest most a → IsRequest most b
        → a ++ x ≡ b ++ y → a ≡ b }
{}

/// What is handed over as a whole request, or as bytes that show none, shows what the whole input
/// shows, whatever followed.
pub fn front_law()
    ensures settles { (most : ℕ) (bytes : List ℕ) (end : End) → IsSettled end
        → Comes most bytes end → (f : Framing) × IsFramed most bytes f }
    ensures keeps { (most : ℕ) (bytes more : List ℕ) (f : Framing) → IsFramed most bytes f
        → IsFramed most (bytes ++ more) f }
    ensures alone { (most : ℕ) (bytes : List ℕ) (f : Framing) (h : RequestHead) (body : List ℕ)
        → IsFramed most bytes (Request h body) → IsFramed most bytes f → f ≡ Request h body }
{}
