// Rows of streams of pieces, and what a reader gives of them.
mod hostile;
mod rows;
mod schedules;
mod sends;
mod stage;
