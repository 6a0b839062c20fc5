// What jobs do, over handles in memory.
mod chains;
mod deadlines;
mod operations;
mod parks;
mod pipes;
mod texts;
