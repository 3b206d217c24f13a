//! Laws of names and contents: each is the contract of a function that does nothing.

ghost use Rattle.std.specs.Prelude.{◌≡◌, ℕ, true, Some, Ok};
ghost use Rattle.rd_cell.specs.declared.cells.Cell.{Cell as Words};
ghost use Rattle.rd_cell.specs.declared.contents.Content.{Content};
ghost use Rattle.rd_cell.specs.declared.operations.Operation.{Operation};
ghost use Rattle.rd_cell.specs.declared.places.Place.{Place};
ghost use Rattle.rd_cell.specs.declared.places.SegName.{SegName};
ghost use Rattle.rd_cell.specs.declared.places.TheConstants.SegName.{ROOT};
ghost use Rattle.rd_cell.specs.Contents.{Contents, is_cell, operand};
ghost use Rattle.rd_cell.specs.Operations.{Effect, effect};
ghost use Rattle.rd_cell.specs.Places.{root};

/// The constant `ROOT` is the root of the definitions: segment 0 of maker 0.
pub fn the_root_constant_is_the_root()
    ensures { ROOT ≡ root }
{}

/// Reading a cell's place yields a cell, and whatever an operation writes over a cell is again a
/// cell.
pub fn the_content_of_a_cell_is_a_cell()
    ensures found { (at : Contents) (s : SegName) (i : ℕ) (c : Content)
        → operand at (Place.Cell s i) ≡ Some c → is_cell c ≡ true }
    ensures written { (op : Operation) (old : Words) (e : Effect) (c : Content)
        → effect op (Content.Cell old) ≡ Ok e
        → e.writes ≡ Some c → is_cell c ≡ true }
{}
