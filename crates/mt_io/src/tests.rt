mod buffered;
mod memory;
mod real;
mod whole;
