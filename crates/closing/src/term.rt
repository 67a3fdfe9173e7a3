// Terms as callers give them.

pub use terms::Term;
