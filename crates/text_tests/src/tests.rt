// What reads and writes texts does where memory is at hand.
mod lines;
mod replies;
