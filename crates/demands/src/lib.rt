// The customer's demands as theorems over the promises of the calls for C. The one function here is a witness: it makes a sequence of which demand 3 speaks.
#![tactic(auto)]

ghost use Rattle.std.specs.Prelude.{[], ◌∷◌, pos};
ghost use Rattle.seats.specs.Call.{One, Insert, Lookup};
ghost use Rattle.voxels.specs.Answers.{mem_of};
ghost use Rattle.calls.specs.Forms.{point_at};
ghost use Rattle.demands.specs.Rows.{Together};
ghost use Rattle.demands.specs.Sequence.{Run};

// A voxel of 1 in the left ear, seat 0, and one of -1 in the right, seat 1, of a pool of four cells; and a look at the left.
fn ears(slots: &mut [u32], masks: &mut [u64], book: &mut [u32])
    requires { Together 4 (mem_of slots.old masks.old book.old) }
    ensures { Run 4 0 (One 0 (Insert (point_at (pos 5) (pos 6) (pos 7)) 0x3F80_0000) ∷ One 1 (Insert (point_at (pos 5) (pos 6) (pos 7)) 0xBF80_0000)
        ∷ One 0 (Lookup (point_at (pos 5) (pos 6) (pos 7))) ∷ []) }
{
    calls::yoldrick_prepare(slots, masks, book);
    calls::yoldrick_insert(slots, masks, book, 0, 5, 6, 7, 0x3F80_0000);
    calls::yoldrick_insert(slots, masks, book, 1, 5, 6, 7, 0xBF80_0000);
    calls::yoldrick_lookup(slots, masks, book, 0, 5, 6, 7);
}
