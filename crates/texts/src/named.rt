// Things that have names, by their positions.
ghost use Rattle.std.specs.Prelude.{◌≡◌, ℕ, ◌<◌, ◌≤◌, List, length, string_bytes, ◌∷◌, []};
ghost use Rattle.std.specs.List.{HoldsAt};
ghost use Rattle.texts.specs.Named.{FirstNamed};

// What has a name.
pub trait Named {
    ghost name_of: { Self → List ℕ };

    fn name(&self) -> &str
        ensures { result.now ≡ name_of self.now };
}

// A name by itself.
impl Named for String {
    ghost name_of = { string_bytes };

    fn name(&self) -> &str {
        self.as_str()
    }
}

// The position of the first that has this name.
pub fn position_of<T: Named>(items: &[T], name: &str) -> Option<usize>
    ensures { FirstNamed T.name_of items.now name.now result }
{
    items.iter().position(|item| item.name() == name)
}

// The name of the one at a position, and a question mark for a position that has none.
pub fn name_at<T: Named>(items: &[T], position: usize) -> &str
    ensures within { position < length items.now → HoldsAt (λ x. T.name_of x ≡ result.now) items.now position }
    ensures beyond { length items.now ≤ position → result.now ≡ 63 ∷ [] }
{
    items.get(position).map_or("?", Named::name)
}
