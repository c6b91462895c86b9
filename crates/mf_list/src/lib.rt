//! A list over `Vec` that contracts see as the list of its elements, for the types that definitions compute.
#![tactic(auto)]

mod seq;

pub use seq::Seq;

/// Want of memory, the one answer that no clause ties to a cause.
pub type Memory = std::alloc::AllocError;

#[cfg(test)]
mod tests {
    use super::*;
    use std::test::Fail;

    #[test]
    fn grows(rt: HostRuntime) -> Result<(), Fail> {
        let mut list = Seq::from_slice(rt.alloc(), &[1u8, 2])?;
        list.push(3)?;
        list.append(Seq::from_slice(rt.alloc(), &[4, 5])?)?;
        assert_eq!(rt; list.as_slice(), [1, 2, 3, 4, 5].as_slice());
        Ok(())
    }
}
