// The representatives of rows.
ghost use Rattle.std.specs.Prelude.{length, slice_index};
ghost use Rattle.joining.specs.Uniting.{Relabels};

// All that `from` represented is from now on represented by `to`.
pub fn relabel(class: &mut [u16], to: u16, from: u16)
    ensures { Relabels (length class.old) (λ x. slice_index class.old x) to from (λ x. slice_index class.new x) }
{
    for c in class.iter_mut() {
        if *c == from {
            *c = to;
        }
    }
}
