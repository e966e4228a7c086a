// An object in a plain buffer: its header's entry, and the entries of its fields behind it.
ghost use Rattle.std.specs.Prelude.{◌≡◌, ◌+◌, ◌<◌, ◌≤◌, length};
ghost use Rattle.heap_model.specs.Steps.{Written};

// Writes `first` at `at` and `rest` behind it, into `size` entries in all.
// With words it lays an object whose fields are 0; with flags it marks an object's header.
// `fill` asks that a clone of `rest` is `rest`, which `Copy` alone does not say.
pub(crate) fn write_object<T: Copy>(entries: &mut [T], at: usize, size: usize, first: T, rest: T)
    requires fits { (0 < size) × (at + size ≤ length entries.old) }
    requires copies { T.is_infallible rest × ((y : T) → T.is_clone rest y → y ≡ rest) }
    ensures { Written entries.old entries.new rest at size first rest }
{
    entries[at..at + size].fill(rest);
    entries[at] = first;
}
