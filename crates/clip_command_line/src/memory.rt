//! Memory that is given back, and kept for what is taken next.

use std::alloc::Global;

/// How many bytes a piece has whose return raises the C library's bounds nearly as far as any does.
const LARGE_PIECE: usize = 33_000_000;

/// Has the C library keep up to 66 MB that are given back, for what is taken next: an article of which 100,000 queries
/// hold takes 13 MB and gives them back. Where the piece can't be had, all stays as it was.
///
/// glibc returns what is free at the end of its memory from 128 KiB on to the system, and takes each piece from 128 KiB
/// on from there. Once a larger piece came back, of up to 32 MiB, the second bound is its size, and the first is twice
/// that (`mallopt(3)`, at M_MMAP_THRESHOLD). Constant time: none of the piece's bytes is touched.
pub fn keep_freed(alloc: Global) {
    let large: Result<Vec<u8>, _> = Vec::with_capacity(alloc, LARGE_PIECE);
    drop(large);
}
