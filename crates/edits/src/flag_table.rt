// The masks of groups, from one table: document 02, N3.
ghost use Rattle.std.specs.Prelude.{◌≡◌, ◌<◌};
ghost use Rattle.edits.specs.Groups.{flag_table};
ghost use Rattle.edits.specs.Groups.{settled_mask};

// At 8 × wants + joined bits, in the order of the course book. One list, as `flag_table` of the account is: it is what callers are asked for.
pub(crate) const FLAG_TABLE: [u32; 32] = [
    // wants 0
    0, 1, 0, 1, 4, 5, 4, 5,
    // wants 1: concat
    0, 1, 2, 3, 4, 5, 6, 7,
    // wants 2: tatweel
    0, 1, 0, 1, 5, 1, 5, 1,
    // wants 3: both
    0, 1, 2, 3, 7, 1, 7, 3,
];

// The mask of a group with these joined bits. The remainder: a state that is handed in may have any wants.
#[tactic(auto, using(crate::proofs::FlagTables::table_entries))]
pub(crate) fn group_mask(table: &[u32], wants: u32, joined: u32) -> u32
    requires { (table.now ≡ flag_table) × (joined < 8) }
    ensures { result ≡ settled_mask wants joined }
{
    let place = 8 * (wants % 4) + joined;
    table[place as usize]
}
