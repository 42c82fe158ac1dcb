mod duration;
