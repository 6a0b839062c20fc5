// What commands write.
mod faults;
mod framing;
mod helps;
