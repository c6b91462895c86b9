//! Reads and writes at places that need no proof: past the end a read gives a default and a write does nothing.

pub fn read<T: Copy>(items: &[T], at: usize, default: T) -> T {
    match items.get(at) {
        Some(item) => *item,
        None => default,
    }
}

pub fn write<T: Copy>(items: &mut [T], at: usize, item: T) {
    if at < items.len() {
        items[at] = item;
    }
}

/// The number in 32 bits, or the greatest of 32 bits.
pub fn narrow(number: usize) -> u32 {
    u32::try_from(number).unwrap_or(u32::MAX)
}
