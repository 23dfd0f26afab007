mod refused_growths;
mod tables;
