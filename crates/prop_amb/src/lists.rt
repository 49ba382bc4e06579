//! Lists of sides, and what is made of them.
ghost use Rattle.std.specs.Prelude.{◌≡◌, ◌<◌, ◌≤◌, length, slice_index_or};
ghost use Rattle.prop_amb.specs.Moving.{first_sides, level_first, advanced};

/// Of how many choices, from the first one and up to the level, the side is their first.
pub(crate) fn level_first(list: &[u8], level: usize) -> usize
    requires { level ≤ length list.now }
    ensures { result ≡ level_first level list.now }
{
    for place in 0..level {
        if list[place] != 1 {
            return place;
        }
    }
    level
}

/// Puts each choice on its first side.
pub(crate) fn put_first(list: &mut [u8])
    ensures { list.new ≡ first_sides list.old }
{
    list.fill(1);
}

/// Puts the choice at a place on its next side, and the later ones on their first.
pub(crate) fn move_on(list: &mut [u8], place: usize)
    requires place { place < length list.old }
    requires more { slice_index_or list.old place 0 < 255 }
    ensures { list.new ≡ advanced list.old place }
{
    list[place] += 1;
    list[place + 1..].fill(1);
}
