//! Laws of the text of a trace: each is the contract of a function that does nothing.

ghost use Rattle.std.specs.Prelude.{◌≡◌, ◌≢◌, ℕ, List, Result, Err};
ghost use Rattle.rd_marks.specs.declared.any_book.AnyBook.{AnyBook};
ghost use Rattle.rd_trace.specs.declared.faults.TraceFault.{TraceFault};
ghost use Rattle.rd_trace.specs.declared.faults.TraceFault.TheVariants.{NoMemory};
ghost use Rattle.rd_trace.specs.Starts.{start_flaw};
ghost use Rattle.rd_trace.specs.Saved.{Trace, IsTraceText, loaded_state, IsSameBook};
ghost use Rattle.rd_trace.specs.Loading.{LoadsTrace, IsSameAnswer};

/// A text is at most one trace: any two readings of it have rings of one size, one book, and the
/// same first flaw of the start or none.
pub fn a_text_is_one_trace_at_most()
    ensures { (text : List ℕ) (R Q : ℕ) (t : Trace R) (u : Trace Q) → IsTraceText text t
        → IsTraceText text u
        → (R ≡ Q) × (start_flaw t.start ≡ start_flaw u.start)
        × IsSameBook (loaded_state t) (loaded_state u) }
{}

/// Loading a text has one result, unless memory is refused: the same book, or the same fault with
/// its flaw, its numbers and its cause.
pub fn a_text_has_one_answer()
    ensures { (text : List ℕ) (one other : Result AnyBook TraceFault) → LoadsTrace text one
        → LoadsTrace text other
        → one ≢ Err NoMemory → other ≢ Err NoMemory → IsSameAnswer one other }
{}
