// The calls that change a seat as a whole: one body serves them all. It tests what it was given and then the whole pool before it changes anything.
ghost use Rattle.std.specs.Prelude.{◌≡◌, List, [], ◌∷◌, ℕ, ◌<◌};
ghost use Rattle.seats.specs.Call.{One, asks};
ghost use Rattle.nodes.specs.Layout.{st};
ghost use Rattle.nodes.specs.Place.{seen};
ghost use Rattle.nodes.specs.Pool.{Same, state};
ghost use Rattle.nodes.specs.Range.{Cells};
ghost use Rattle.signs.specs.Signs.{fill_signs_m};
ghost use Rattle.voxels.specs.Answers.{mem_of, Says, done_of};
ghost use Rattle.pool.specs.Guard.{Admitted, solid_of};
ghost use Rattle.pool.specs.Task.{act_of, work_s, mark_of, change_s};

use super::guard;
use nodes::cells;
use nodes::pool::Pool;
use nodes::view::View;
use trees::turn::Work;
use trees::{below, turn};
use voxels::refusal::Refusal;

// What is done to a whole seat. It stays an enum, since the specs take it apart and one proof serves every task.
#[derive(Clone, Copy)]
pub enum Task {
    Fill(u32),
    Clear,
    Turn(Work),
    Signs,
}

impl Task {
    // Every value that the task was given is finite.
    fn given(self) -> bool
        ensures { result ≡ (asks (One 0 (act_of self))).given }
    {
        match self {
            Task::Fill(w) => floats::finite_word(w),
            Task::Turn(Work::Cut(t)) => floats::bounded(t),
            Task::Turn(Work::Prune | Work::Flip) | Task::Clear | Task::Signs => true,
        }
    }

    // The filled mark after the task, where it was m.
    fn mark_after(self, m: u32) -> u32
        ensures { result ≡ mark_of self m }
    {
        match self {
            Task::Signs => 1,
            Task::Turn(Work::Flip) => m,
            Task::Turn(Work::Prune | Work::Cut(_)) | Task::Fill(_) | Task::Clear => 0,
        }
    }
}

// Refusal 7: some branch of the seat has both masks empty.
pub fn solid(pool: &View<'_>, seat: usize) -> Result<(), Refusal>
    requires { seat < 8 }
    ensures { (book : List ℕ) → result ≡ solid_of pool.now.n (seen pool.now book) seat }
{
    if below::hollow(pool, 2, seat) {
        return Err(Refusal::EmptyBranch);
    }
    Ok(())
}

// The task's refusal, or the number of cells.
fn barred(
    slots: &[u32],
    masks: &[u64],
    book: &[u32],
    seat: u32,
    task: Task,
) -> Result<usize, Refusal>
    ensures { Admitted (One seat (act_of task)) (mem_of slots.now masks.now book.now) result }
{
    let n = guard::guard(slots, masks, book, guard::one_given(seat, task.given()))?;
    if let Task::Signs = task {
        solid(&View { slots, masks, n }, seat as usize)?;
    }
    Ok(n)
}

// The signs of a seat are filled in. The masks are only read, and yet taken to be written: of a field of a pool that is handed on to be read, no proof knows afterwards that
// it is as it was.
fn fill_signs(slots: &mut [u32], masks: &mut [u64], n: usize, seat: usize)
    requires { (Cells n slots.old masks.old) × (seat < 8) }
    ensures { (book : List ℕ) → st n slots.new masks.new book ≡ fill_signs_m 3 (2 ∷ 2 ∷ []) n seat (st n slots.old masks.old book) }
{
    signs::fill::fill_signs(slots, masks, n, 2, seat);
}

// The seat's tree, as the task leaves it.
#[tactic(auto, unfolding(crate::specs::Task::work_s, floats::specs::Value::far_with))]
fn work(pool: &mut Pool, seat: usize, task: Task)
    requires { seat < 8 }
    ensures kept { Same pool.old pool.new }
    ensures turned { state pool.new ≡ work_s task pool.old.n seat (state pool.old) }
{
    match task {
        Task::Fill(w) => pool.wipe(seat, w, true),
        Task::Clear => pool.wipe(seat, floats::far_word(false), false),
        Task::Turn(work) => turn::turn(pool, 2, seat, work),
        Task::Signs => fill_signs(pool.slots, pool.masks, pool.n, seat),
    }
}

// The seat's tree and its filled mark, as the task leaves them.
fn settle(pool: &mut Pool, seat: usize, task: Task)
    requires { seat < 8 }
    ensures kept { Same pool.old pool.new }
    ensures turned { state pool.new ≡ change_s task pool.old.n seat (state pool.old) }
{
    let m = task.mark_after(pool.book[seat]);
    work(pool, seat, task);
    cells::set_mark(pool.book, seat, m);
}

// The task is done to the seat, or refused.
pub fn change(
    slots: &mut [u32],
    masks: &mut [u64],
    book: &mut [u32],
    seat: u32,
    task: Task,
) -> Result<(), Refusal>
    ensures { Says done_of (One seat (act_of task)) (mem_of slots.old masks.old book.old) result (mem_of slots.new masks.new book.new) }
{
    let n = barred(slots, masks, book, seat, task)?;
    let mut pool = Pool {
        slots,
        masks,
        book,
        n,
    };
    settle(&mut pool, seat as usize, task);
    Ok(())
}
