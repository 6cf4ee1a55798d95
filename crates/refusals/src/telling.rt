//! What is printed of calls. Where standard output takes a line no more, the line is missing.

/// Names the call that is made next.
pub fn call<R: Print>(rt: &R, name: &str) {
    let _ = rt.println(name);
}

/// Tells that the call answered, by a number: true.
pub fn answered<R: Print>(rt: &R, number: u64) -> bool {
    let _ = println!(rt; "answered {number}");
    true
}

/// Tells that memory was refused: false.
pub fn refused<R: Print>(rt: &R) -> bool {
    let _ = rt.println("refused");
    false
}
