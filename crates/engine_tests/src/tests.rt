mod beside;
mod hostile_bytes;
mod mixed_runs;
mod refused_growths;
mod same;
