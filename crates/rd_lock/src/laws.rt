//! The law of a pass's own entries. A law is the contract of a function that does nothing.

ghost use Rattle.std.specs.Prelude.{◌≡◌, ℕ, ◌+◌, List, ◌++◌, length};
ghost use Rattle.rd_lock.specs.Histories.{put_by, with_positions, signed as signed_by, Continues};

/// Suppose that the history which a pass finds continues what it had seen by entries of other
/// passes only, and that more entries are then put after it. The pass's own entries are then those
/// that it had, followed by the new ones that name it, each with its position (`named`). If the
/// pass puts the new ones itself, all of them follow (`signed`).
pub fn own_entries_grow_by_what_is_put<E>()
    ensures named { (pass : ℕ) (old found es : List (ℕ × E)) → Continues pass old found
        → put_by pass 1 (found ++ es) ≡ put_by pass 1 old ++ put_by pass (1 + length found) es }
    ensures signed { (pass : ℕ) (old found : List (ℕ × E)) (es : List E) → Continues pass old found
        → put_by pass 1 (found ++ signed_by pass es)
        ≡ put_by pass 1 old ++ with_positions (1 + length found) es }
{}
