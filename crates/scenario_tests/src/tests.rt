mod configurations;
mod events;
mod memory;
