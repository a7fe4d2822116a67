mod address;
mod bytes;
mod slot;
