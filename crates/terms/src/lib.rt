// Terms: a variable and the attributes that follow it, lent by a caller or kept in fixed memory.
#![tactic(auto)]

mod kept;
mod lent;

pub use kept::KeptTerm;
pub use lent::Term;

#[cfg(test)]
mod tests {
    use super::*;

    #[test]
    fn grows_by_attributes(rt: HostRuntime) {
        let mut kept: KeptTerm<2> = KeptTerm::only(13);
        assert_eq!(rt; kept.term().var, 13);
        assert!(rt; kept.term().path.is_empty());
        kept.push(65535);
        kept.push(2);
        assert_eq!(rt; kept.term().path, [65535, 2].as_slice());
    }

    #[test]
    fn copies_a_term(rt: HostRuntime) {
        let kept: KeptTerm<8> = KeptTerm::of(Term {
            var: 7,
            path: &[1, 2, 3],
        });
        assert_eq!(rt; kept.term().var, 7);
        assert_eq!(rt; kept.term().path, [1, 2, 3].as_slice());
    }
}
