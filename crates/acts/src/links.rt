// Grains' lists of cells and cells' lists of grains: entering, leaving, and where each list stands.
ghost use Rattle.std.specs.Prelude.{◌≡◌, ◌<◌, ◌≤◌, length};
ghost use Rattle.model.specs.State.{State, home, listed};
ghost use Rattle.model.specs.Acts.{enter as enterAct, leave as leaveAct};
ghost use Rattle.model.specs.Refusals.{number_of};
ghost use Rattle.tables.specs.Holds.{Ranged};
ghost use Rattle.acts.specs.Tell.{InLists, Lists, Pair, ListsPair, ListsTold};

use layout::{HOME_ROOM, MEMBER_ROOM};
use model::Halt;
use tables::parts::Part;
use tables::{Sizes, parts, rows};

// The grains that a cell lists.
pub fn members_of(lists: &[u64], z: Sizes, cell: usize) -> &[u64]
    requires { Lists z lists.now × Ranged z × (cell < z.cells) }
    ensures { (s : State) → InLists z lists.now s → result.now ≡ listed s cell }
{
    let Part { from, to } = parts::member_part(z, cell);
    rows::live_of(&lists[from..to])
}

// The cells that list a grain.
pub fn cells_of(lists: &[u64], z: Sizes, grain: usize) -> &[u64]
    requires { Lists z lists.now × Ranged z × (grain < z.grains) }
    ensures { (s : State) → InLists z lists.now s → result.now ≡ home s grain }
{
    let Part { from, to } = parts::home_part(grain);
    rows::live_of(&lists[from..to])
}

// A grain enters a cell, in both lists or in neither: 8 before 7, the cell's room before the grain's.
pub fn enter(lists: &mut [u64], z: Sizes, grain: usize, cell: usize) -> Result<(), Halt>
    requires { Lists z lists.old × Ranged z × (grain < z.grains) × (cell < z.cells) }
    ensures { (s : State) → InLists z lists.old s → ListsTold z lists.new (number_of result) (enterAct grain cell s) }
{
    let members = members_of(lists, z, cell);
    if rows::has(members, grain as u64) {
        return Err(Halt::AlreadyListed);
    }
    if MEMBER_ROOM <= members.len() || HOME_ROOM <= cells_of(lists, z, grain).len() {
        return Err(Halt::ListFull);
    }
    let Part { from, to } = parts::member_part(z, cell);
    rows::add_to(&mut lists[from..to], grain as u64);
    let Part { from, to } = parts::home_part(grain);
    rows::add_to(&mut lists[from..to], cell as u64);
    Ok(())
}

// A grain leaves a cell, where both list each other, unless it is the grain's only one: 9.
pub fn leave(lists: &mut [u64], z: Sizes, grain: usize, cell: usize) -> Result<(), Halt>
    requires { ListsPair z lists.old grain cell × Ranged z × (grain < z.grains) × (cell < z.cells) }
    ensures { (s : State) → InLists z lists.old s → Pair grain cell s → ListsTold z lists.new (number_of result) (leaveAct grain cell s) }
{
    if cells_of(lists, z, grain).len() <= 1 {
        return Err(Halt::OnlyCell);
    }
    let Part { from, to } = parts::member_part(z, cell);
    rows::drop_from(&mut lists[from..to], grain as u64);
    let Part { from, to } = parts::home_part(grain);
    rows::drop_from(&mut lists[from..to], cell as u64);
    Ok(())
}
