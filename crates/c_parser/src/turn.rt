// What a turn of a loop of the readers answers.

/// What is read so far, or all.
#[derive(Debug, Drop)]
pub enum Turn<S, R> {
    More(S),
    Done(R),
}
