use crate::submission::Submission;
use std::collections::LinkedList;

/// What a place knows: the imports that have led to the book that it saw last, how often it has looked, and the numbers
/// of the books that it looked at. No value of it is made.
pub struct View {
    pub seen: LinkedList<Submission>,
    pub looks: u64,
    pub numbers: LinkedList<u64>,
}
