mod lines;
mod outside;
mod stores;
mod truths;
mod words;
