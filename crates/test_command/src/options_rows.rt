mod command_line;
mod effects;
mod options_file;
