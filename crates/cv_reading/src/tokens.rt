//! What cutting a text into tokens means, as the contract of a call that does nothing.

ghost use Rattle.std.specs.Prelude.{◌≡◌, ℕ, List, filter, flat_map, not};
ghost use Rattle.cv_reading.specs.Tokens.{ByteKind, Token, is_white, cut, AllStand};

/// No byte of a text but its white ones is lost by cutting, none is added, and each token stands at its
/// offset.
pub fn tokens_are_cut()
    ensures bytes { (kind : ℕ → ByteKind) (at : ℕ) (text : List ℕ)
        → flat_map (λ (t : Token). t.bytes) (cut kind at text) ≡ filter (λ b. not (is_white (kind b))) text }
    ensures places { (kind : ℕ → ByteKind) (at : ℕ) (text : List ℕ) → AllStand at text (cut kind at text) }
{}
