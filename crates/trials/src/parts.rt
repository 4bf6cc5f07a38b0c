// A part of some items, however few these are.
ghost use Rattle.std.specs.Prelude.{◌≡◌, take, drop};

// At most `count` items, those from the place `from` on.
pub fn part<T>(items: &[T], from: usize, count: usize) -> &[T]
    ensures { result.now ≡ take count (drop from items.now) }
{
    let rest = &items[from.min(items.len())..];
    &rest[..count.min(rest.len())]
}
