// Terms as callers give them.

// A variable and the attributes that follow it: any numbers whatever.
#[derive(Clone, Copy)]
pub struct Term<'a> {
    pub var: u16,
    pub path: &'a [u16],
}
