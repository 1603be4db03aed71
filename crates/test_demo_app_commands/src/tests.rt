mod clients;
mod lines;
mod own;
mod scripts;
mod servers;
