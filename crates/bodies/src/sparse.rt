// Two sparse bodies, merged by index with two cursors in stored order.
ghost use Rattle.std.specs.Prelude.{◌≡◌};
ghost use Rattle.bodies.specs.Entries.{stored_count, entries_of};
ghost use Rattle.bodies.specs.Inner.Turns.{Next};

// What comes next, with its values: an index of both bodies, of the first or of the second alone, or none.
#[derive(Clone, Copy)]
pub enum Turn {
    Both(f32, f32),
    Left(f32),
    Right(f32),
    Done,
}

// The turn at entry i of the `left` of a and entry j of the `right` of b.
pub fn next_turn(a: &[u8], left: usize, i: usize, b: &[u8], right: usize, j: usize) -> Turn
    requires left_value { left ≡ stored_count a.now }
    requires right_value { right ≡ stored_count b.now }
    ensures { Next (entries_of a.now) (entries_of b.now) i j result }
{
    if left <= i {
        if right <= j {
            return Turn::Done;
        }
        return Turn::Right(little_endian::f32_at(b, 4 * j));
    }
    if right <= j {
        return Turn::Left(little_endian::f32_at(a, 4 * i));
    }
    let x = little_endian::u32_at(a, 4 * left + 4 * i);
    let y = little_endian::u32_at(b, 4 * right + 4 * j);
    if x == y {
        return Turn::Both(
            little_endian::f32_at(a, 4 * i),
            little_endian::f32_at(b, 4 * j),
        );
    }
    if x < y {
        return Turn::Left(little_endian::f32_at(a, 4 * i));
    }
    Turn::Right(little_endian::f32_at(b, 4 * j))
}
